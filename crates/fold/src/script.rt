use crate::operation::Operation;
use crate::operation::Operation::{Binary, Literal, Unary};
use ecma::BinaryOperator::{
    BitwiseAnd, Division, Exponential, GreaterThan, LessEqualThan, Multiplication, Remainder,
    ShiftRight, StrictEquality,
};
use ecma::UnaryOperator::{Minus, Not};

// How many instructions the script has.
pub const LENGTH: usize = 33;

// The air supply of a small house: each instruction with what it stands for. Instructions name one another by number, as in
// any script.
pub const SCRIPT: &[(&str, Operation); LENGTH] = &[
    ("floor length, m", Literal(12.5)),
    ("floor width, m", Literal(8.4)),
    ("floor area, m2", Binary(Multiplication, 0, 1)),
    ("room height, m", Literal(2.4)),
    ("volume, m3", Binary(Multiplication, 2, 3)),
    ("air changes an hour", Literal(0.5)),
    ("air flow, m3/h", Binary(Multiplication, 4, 5)),
    ("seconds in an hour", Literal(3600.0)),
    ("air flow, m3/s", Binary(Division, 6, 7)),
    ("width of the main duct, m", Literal(0.2)),
    ("area of the main duct, m2", Binary(Multiplication, 9, 9)),
    ("velocity in the main duct, m/s", Binary(Division, 8, 10)),
    ("width of the branch, m", Literal(0.125)),
    ("area of the branch, m2", Binary(Multiplication, 12, 12)),
    ("the main duct is the larger", Binary(GreaterThan, 10, 13)),
    ("highest velocity, m/s", Literal(3.0)),
    ("the main duct is quiet", Binary(LessEqualThan, 11, 15)),
    ("the main duct is loud", Unary(Not, 16)),
    ("length of a duct piece, m", Literal(1.5)),
    ("length of the cut piece, m", Binary(Remainder, 0, 18)),
    ("fan stage bits", Literal(1437.0)),
    ("mask of the stage", Literal(7.0)),
    ("stage", Binary(BitwiseAnd, 20, 21)),
    ("bits past the stage", Binary(ShiftRight, 20, 15)),
    ("velocity in no duct", Literal(0.0)),
    ("flow in no duct", Binary(Division, 24, 24)),
    ("it is itself", Binary(StrictEquality, 25, 25)),
    ("change against the flow", Unary(Minus, 8)),
    ("pressure without flow", Binary(Multiplication, 24, 27)),
    ("resistance without flow", Binary(Division, 27, 28)),
    ("power of a square", Literal(2.0)),
    ("square of the velocity", Binary(Exponential, 11, 30)),
    ("pressure loss", Binary(Multiplication, 31, 10)),
];
