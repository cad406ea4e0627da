// Why a call is refused: document 01's numbered causes. 13 is retired (document 02, Two).
ghost use Rattle.std.specs.Prelude.{◌≡◌};
ghost use Rattle.flat.specs.Refusal.{number_of};

#[derive(Clone, Copy, Debug, PartialEq, Eq)]
pub enum Error {
    Length = 1,
    Kind = 2,
    Argument = 3,
    Shape = 4,
    Depth = 5,
    Nested = 6,
    Unknown = 7,
    OutputTooShort = 8,
    Channel = 9,
    ChannelCode = 10,
    NotInteger = 11,
    NoUpcast = 12,
}

impl From<Error> for u64 {
    ghost from_gives = { λ cause number. number ≡ number_of cause };

    fn from(cause: Error) -> u64 {
        cause as u64
    }
}
