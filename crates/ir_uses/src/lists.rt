use ir_module::Spot;

/// A use of a value: operand number `operand`, from 0, of the instruction at a spot.
#[derive(Clone, Copy, PartialEq, Eq)]
pub struct Use {
    pub spot: Spot,
    pub operand: u32,
}
