// The layers that a change is for.

#[derive(Clone, Copy, Debug, PartialEq, Eq)]
pub struct Layers {
    pub ram: bool,
    pub bbr: bool,
    pub flash: bool,
}
