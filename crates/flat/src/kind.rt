// The kinds of a node: document 01's codes, by the names of dtype.rs. `Unknown(Int(v))` has two codes, by the sign of
// v; a field is a node of its own, over the type that it names.
#[derive(Clone, Copy)]
pub struct Kind {}

impl Kind {
    pub const NULL: u8 = 0;

    pub const BOOLEAN: u8 = 1;

    pub const UINT8: u8 = 2;

    pub const UINT16: u8 = 3;

    pub const UINT32: u8 = 4;

    pub const UINT64: u8 = 5;

    pub const UINT128: u8 = 6;

    pub const INT8: u8 = 7;

    pub const INT16: u8 = 8;

    pub const INT32: u8 = 9;

    pub const INT64: u8 = 10;

    pub const INT128: u8 = 11;

    pub const FLOAT16: u8 = 12;

    pub const FLOAT32: u8 = 13;

    pub const FLOAT64: u8 = 14;

    pub const DECIMAL: u8 = 15;

    pub const STRING: u8 = 16;

    pub const BINARY: u8 = 17;

    pub const BINARY_OFFSET: u8 = 18;

    pub const DATE: u8 = 19;

    pub const DATETIME: u8 = 20;

    pub const DURATION: u8 = 21;

    pub const TIME: u8 = 22;

    pub const UNKNOWN_ANY: u8 = 23;

    pub const UNKNOWN_STR: u8 = 24;

    pub const UNKNOWN_FLOAT: u8 = 25;

    pub const UNKNOWN_INT_POS: u8 = 26;

    pub const UNKNOWN_INT_NEG: u8 = 27;

    pub const LIST: u8 = 28;

    pub const ARRAY: u8 = 29;

    pub const STRUCT: u8 = 30;

    pub const FIELD: u8 = 31;
}
