// The settings of a station, in the specification's letters.
#[derive(Clone, Copy)]
pub struct Settings {
    pub p: u8,
    pub q: u8,
    pub N: u8,
    pub r: u8,
    pub L: u8,
    pub M: u32,
}
