// What `check_root` gives outside: document 01's number, and the root beside it.
ghost use Rattle.std.specs.Prelude.{◌≡◌};
ghost use Rattle.flat.specs.Reply.{root_reply};

use crate::Node;
use crate::error::Error;

// 0 and the root, or a refusal's number, kind 0 and argument 0.
#[repr(C)]
#[derive(Clone, Copy, Debug, PartialEq, Eq)]
pub struct RootReply {
    pub number: u64,
    pub kind: u8,
    pub argument: u64,
}

impl From<Result<Node, Error>> for RootReply {
    ghost from_gives = { λ answer reply. reply ≡ root_reply answer };

    fn from(answer: Result<Node, Error>) -> RootReply {
        match answer {
            Ok(root) => RootReply {
                number: 0,
                kind: root.kind,
                argument: root.arg,
            },
            Err(e) => RootReply {
                number: u64::from(e),
                kind: 0,
                argument: 0,
            },
        }
    }
}
