// A pair of item numbers: a value other than 0 in the first needs a value other than 0 in the second.

#[derive(Clone, Copy, PartialEq, Eq, Default, Debug)]
pub struct Need {
    pub first: usize,
    pub second: usize,
}
