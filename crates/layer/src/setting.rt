// A setting: a value under a key.

#[derive(Clone, Copy, PartialEq, Eq, Debug)]
pub struct Setting {
    pub key: u32,
    pub value: u64,
}
