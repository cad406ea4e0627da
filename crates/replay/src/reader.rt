// Reads the numbers of a line, and the types and flags among them.
ghost use Rattle.std.specs.Prelude.{◌≡◌, ◌≤◌, ◌∷◌, ◌++◌, length, vec_len, IfOk};
ghost use Rattle.flat.specs.Reply.{truth};
ghost use Rattle.replay.specs.Answer.{type_record};

use flat::Flat;
use std::alloc::{AllocError, AllocFailed, Global};

// The most numbers of a line.
pub const NUMBERS: usize = 2048;

// The most nodes of what is recorded as a type: one more than a type has.
pub const NODES: usize = Flat::MAX_NODES + 1;

// Why a line has no answer: what is read doesn't stand there, or memory ran out.
#[derive(Clone, Copy, Debug, PartialEq, Eq)]
pub enum Fault {
    Unreadable,
    OutOfMemory,
}

impl From<AllocError> for Fault {
    fn from(_error: AllocError) -> Fault {
        Fault::OutOfMemory
    }
}

impl<T: Drop> From<AllocFailed<T>> for Fault {
    fn from(_error: AllocFailed<T>) -> Fault {
        Fault::OutOfMemory
    }
}

// A number in decimal. By its digits: a long line of numbers took nearly twice as long by `from_utf8` and `parse`.
fn number(word: &[u8]) -> Option<u64> {
    if word.is_empty() {
        return None;
    }
    let mut value: u64 = 0;
    for &byte in word {
        let digit = byte.checked_sub(b'0')?;
        if digit > 9 {
            return None;
        }
        value = value.checked_mul(10)?.checked_add(u64::from(digit))?;
    }
    Some(value)
}

// A number that is a byte.
fn byte(number: u64) -> Result<u8, Fault>
    ensures { IfOk result (λ n. n ≡ number) }
{
    u8::try_from(number).map_err(|_| Fault::Unreadable)
}

// The numbers of a line, which have one space between them. Of a line with too many no more are read than tell it.
pub fn read_numbers(alloc: Global, line: &[u8]) -> Result<Vec<u64>, Fault>
    ensures { IfOk result (λ numbers. vec_len numbers ≤ NUMBERS) }
{
    let numbers: Vec<u64> = line
        .split(|&byte| byte == b' ')
        .take(NUMBERS + 1)
        .map(|word| number(word).ok_or(Fault::Unreadable))
        .try_collect(alloc)?;
    if numbers.len() > NUMBERS {
        return Err(Fault::Unreadable);
    }
    Ok(numbers)
}

// A type that stands in a line.
#[derive(Drop)]
pub struct TypeRead<'a> {
    pub kinds: Vec<u8>,
    pub args: &'a [u64],
}

// What is still to be read of a line's numbers, and where what is read from them goes.
#[derive(Drop)]
pub struct Line<'a> {
    pub rest: &'a [u64],
    pub alloc: Global,
}

impl<'a> Line<'a> {
    pub fn number(&mut self) -> Result<u64, Fault>
        ensures { IfOk result (λ n. self.old.rest.now ≡ n ∷ self.new.rest.now) }
    {
        let (&number, rest) = self.rest.split_first().ok_or(Fault::Unreadable)?;
        self.rest = rest;
        Ok(number)
    }

    pub fn byte(&mut self) -> Result<u8, Fault>
        ensures { IfOk result (λ n. self.old.rest.now ≡ n ∷ self.new.rest.now) }
    {
        byte(self.number()?)
    }

    // A flag is 0 or 1.
    pub fn flag(&mut self) -> Result<bool, Fault>
        ensures { IfOk result (λ on. self.old.rest.now ≡ truth on ∷ self.new.rest.now) }
    {
        match self.number()? {
            0 => Ok(false),
            1 => Ok(true),
            _ => Err(Fault::Unreadable),
        }
    }

    // As many numbers as the first one says.
    fn counted(&mut self) -> Result<&'a [u64], Fault>
        ensures { IfOk result (λ ns. self.old.rest.now ≡ length ns.now ∷ (ns.now ++ self.new.rest.now)) }
    {
        let n = self.number()? as usize;
        let (numbers, rest) = self.rest.split_at_checked(n).ok_or(Fault::Unreadable)?;
        self.rest = rest;
        Ok(numbers)
    }

    // The number of a type's kinds, the kinds, the number of its arguments, the arguments.
    #[tactic(auto, unfolding(crate::specs::Answer::type_record))]
    pub fn read_type(&mut self) -> Result<TypeRead<'a>, Fault>
        ensures stands { let rest = self.new.rest.now in
            IfOk result (λ t. self.old.rest.now ≡ type_record t.kinds.items t.args.now ++ rest) }
        ensures few { IfOk result (λ t. vec_len t.kinds ≤ NODES) }
    {
        let numbers = self.counted()?;
        if numbers.len() > NODES {
            return Err(Fault::Unreadable);
        }
        let mut kinds = Vec::new(self.alloc);
        // by `push`: of what `try_collect` gathers the contract says no more than how much
        for &kind in numbers {
            kinds.push(byte(kind)?)?;
        }
        let args = self.counted()?;
        Ok(TypeRead { kinds, args })
    }
}
