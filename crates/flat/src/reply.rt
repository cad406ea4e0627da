// What a call gives outside: document 01's number, 0 or the refusal's, and a value beside it.
ghost use Rattle.std.specs.Prelude.{◌≡◌, ℕ, unwrap_or};
ghost use Rattle.flat.specs.Reply.{nothing, truth, decision, reply_of};

use crate::error::Error;

// 0 and a value, or a refusal's number and 0.
#[repr(C)]
#[derive(Clone, Copy, Debug, PartialEq, Eq)]
pub struct Reply {
    pub number: u64,
    pub value: u64,
}

// An answer that is told as one number.
pub trait Value {
    ghost value_of: { Self → ℕ };

    fn value(self) -> u64
        ensures { result ≡ value_of self };
}

// A check says no more than that there is a type.
impl Value for () {
    ghost value_of = { nothing };

    fn value(self) -> u64 {
        0
    }
}

// Yes or no.
impl Value for bool {
    ghost value_of = { truth };

    fn value(self) -> u64 {
        u64::from(self)
    }
}

// Yes, no or no verdict, the source's None.
impl Value for Option<bool> {
    ghost value_of = { decision };

    fn value(self) -> u64 {
        match self {
            Some(yes) => u64::from(yes),
            None => 2,
        }
    }
}

// The code of a kind.
impl Value for u8 {
    ghost value_of = { λ code. code };

    fn value(self) -> u64 {
        u64::from(self)
    }
}

// How many nodes or bytes.
impl Value for usize {
    ghost value_of = { λ count. count };

    fn value(self) -> u64 {
        self as u64
    }
}

// How many nodes or bytes; 0 for None.
impl Value for Option<usize> {
    ghost value_of = { λ count. unwrap_or count 0 };

    fn value(self) -> u64 {
        self.unwrap_or(0) as u64
    }
}

impl<T: Value> From<Result<T, Error>> for Reply {
    ghost from_gives = { λ answer reply. reply ≡ reply_of T.value_of answer };

    fn from(answer: Result<T, Error>) -> Reply {
        match answer {
            Ok(given) => Reply {
                number: 0,
                value: given.value(),
            },
            Err(e) => Reply {
                number: u64::from(e),
                value: 0,
            },
        }
    }
}
