// Keys, their words, and buffers.
use journal::BLANK;
use std::alloc::{AllocError, Global};

// one key of each size, and the first word of its settings
pub const ENABLED: u32 = 0x1051_0002;

pub const ADDRESS: u32 = 0x2051_0001;

pub const RATE: u32 = 0x3051_0003;

pub const MASK: u32 = 0x4051_0004;

pub const SERIAL: u32 = 0x5051_0005;

pub const ENABLED_HEAD: u32 = 0x0015_1002;

pub const ADDRESS_HEAD: u32 = 0x0025_1001;

pub const RATE_HEAD: u32 = 0x0035_1003;

pub const MASK_HEAD: u32 = 0x0045_1004;

pub const SERIAL_HEAD: u32 = 0x0055_1005;

pub const ADDRESS_REMOVAL: u32 = 0x8025_1001;

// 640 words that begin with these, and blanks behind them.
pub fn buffer(heap: Global, front: &[u32]) -> Result<Vec<u32>, AllocError> {
    let mut words = front.to_vec(heap)?;
    words.resize(640, BLANK)?;
    Ok(words)
}
