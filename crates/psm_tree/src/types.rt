//! Data types and constants.
use psm_num::Dec;
use psm_text::Text;
use psm_token::Place;

/// The numbers after NUMERIC: its precision, and its scale where one is given.
#[derive(Clone, Copy, Debug)]
pub struct Precision {
    pub precision: Dec,
    pub scale: Option<Dec>,
}

/// What a data type is, with its numbers as they are written (ISO/IEC 9075:1992, 6.1).
#[derive(Clone, Copy, Debug)]
pub enum TypeForm {
    SmallInt,
    Integer,
    Numeric(Option<Precision>),
    Char(Option<Dec>),
    VarChar(Dec),
}

/// A data type.
#[derive(Clone, Copy, Debug)]
pub struct DataType {
    pub place: Place,
    pub form: TypeForm,
}

/// `+` or `-` before a number or an operand.
#[derive(Clone, Copy, Debug, PartialEq, Eq)]
pub enum Sign {
    Plus,
    Minus,
}

/// What a constant is (ISO/IEC 9075:1992, 5.3).
#[derive(Debug, Drop)]
pub enum ConstantForm {
    Number { sign: Option<Sign>, number: Dec },
    Text(Text),
    Null,
}

/// A constant, with the place of its first token.
#[derive(Debug, Drop)]
pub struct Constant {
    pub place: Place,
    pub form: ConstantForm,
}

/// `SQLSTATE 'text'` (ISO/IEC 9075-4:1996, SQLSTATE values).
#[derive(Debug, Drop)]
pub struct State {
    pub place: Place,
    /// The place of the text.
    pub at: Place,
    pub text: Text,
}
