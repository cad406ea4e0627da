// An encoded type that was checked.
ghost use Rattle.encoded.specs.Limits.{Checked};

// Its kinds, where they stand in the bytes, and its arguments, in the array lent for them. They are a type.
#[derive(Clone, Copy)]
pub struct Opened<'a> {
    pub kinds: &'a [u8],
    pub args: &'a [u64],
    pub ghost checked: { Checked kinds.now args.now },
}
