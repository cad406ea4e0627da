// The calls that find a part of an encoded type, and the shape of an Array.
ghost use Rattle.std.specs.Prelude.{◌≡◌};
ghost use Rattle.std.specs.Prelude.{Some};
ghost use Rattle.dtype_inner.specs.Inner.{inner_dtype, leaf_dtype, array_leaf_dtype};
ghost use Rattle.dtype_inner.specs.Part.{part_reading};
ghost use Rattle.dtype_inner.specs.Shape.{shape_of};
ghost use Rattle.dtype_inner.specs.Reply.{shape_reply};
ghost use Rattle.capi.specs.Reply.{RepliesFoundBytes, read_encoded};

use dtype_inner::reply::ShapeReply;
use flat::Flat;
use flat::reply::Reply;

// The type under a List or an Array, encoded to the front of out. Gives the number of bytes, 0 for None.
#[unsafe(no_mangle)]
pub extern "C" fn lz_inner_dtype(encoded: &[u8], out: &mut [u8]) -> Reply
    ensures { RepliesFoundBytes (part_reading inner_dtype (read_encoded encoded.now)) out.old out.new result }
{
    Reply::from(encoded_dtype::inner_dtype(encoded, out))
}

// The type under all Lists and Arrays, encoded to the front of out. Gives the number of bytes.
#[unsafe(no_mangle)]
pub extern "C" fn lz_leaf_dtype(encoded: &[u8], out: &mut [u8]) -> Reply
    ensures { let part = part_reading (λ t. Some (leaf_dtype t)) (read_encoded encoded.now) in
        RepliesFoundBytes part out.old out.new result }
{
    Reply::from(encoded_dtype::leaf_dtype(encoded, out))
}

// The type under an Array's consecutive Arrays, encoded to the front of out. Gives the number of bytes, 0 for None.
#[unsafe(no_mangle)]
pub extern "C" fn lz_array_leaf_dtype(encoded: &[u8], out: &mut [u8]) -> Reply
    ensures { RepliesFoundBytes (part_reading array_leaf_dtype (read_encoded encoded.now)) out.old out.new result }
{
    Reply::from(encoded_dtype::array_leaf_dtype(encoded, out))
}

// The widths down an Array's consecutive Arrays.
#[unsafe(no_mangle)]
pub extern "C" fn lz_get_shape(encoded: &[u8]) -> ShapeReply
    ensures { result ≡ shape_reply Flat.MAX_DEPTH (shape_of Flat.MAX_DEPTH (read_encoded encoded.now)) }
{
    ShapeReply::from(encoded_dtype::get_shape(encoded))
}
