// What a line says of a step.

// The instruction whose first byte this is, as it stands in the code and is not decoded for its name, or what was delivered at an end.
#[derive(Clone, Copy)]
pub enum Kind {
    Instruction(u8),
    Value,
    Handle,
    Split,
    Close,
}

// The position asked, the kind, and the number that a value or a handle is printed with, 0 for the others.
#[derive(Clone, Copy)]
pub struct Printed {
    pub position: u32,
    pub kind: Kind,
    pub number: i32,
}
