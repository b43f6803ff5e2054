// What a control name covers among a definition's controls.

// Its index and its width.
#[derive(Clone, Copy, Debug, PartialEq, Eq)]
pub struct Cover {
    pub index: u32,
    pub width: u32,
}
