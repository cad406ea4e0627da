// What `get_shape` gives outside: document 01's number, and the shape beside it.
ghost use Rattle.std.specs.Prelude.{◌≡◌};
ghost use Rattle.flat.specs.declared.TheConstants.Flat.{MAX_DEPTH};
ghost use Rattle.dtype_inner.specs.Reply.{shape_reply};

use crate::Shape;
use flat::Flat;
use flat::error::Error;

// 0 and a shape, unused places zero, or a refusal's number and no widths.
#[repr(C)]
#[derive(Clone, Copy, Debug, PartialEq, Eq)]
pub struct ShapeReply {
    pub number: u64,
    pub count: u64,
    pub widths: [u64; Flat::MAX_DEPTH],
}

impl From<Result<Shape, Error>> for ShapeReply {
    ghost from_gives = { λ answer reply. reply ≡ shape_reply MAX_DEPTH answer };

    fn from(answer: Result<Shape, Error>) -> ShapeReply {
        match answer {
            Ok(shape) => {
                let widths = shape.widths;
                ShapeReply {
                    number: 0,
                    count: shape.count as u64,
                    widths,
                }
            }
            Err(e) => ShapeReply {
                number: u64::from(e),
                count: 0,
                widths: [0; Flat::MAX_DEPTH],
            },
        }
    }
}
