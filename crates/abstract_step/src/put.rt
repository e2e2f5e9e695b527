/// A packet that is put out at a port.
#[derive(Clone, Copy, PartialEq, Eq, Debug)]
pub struct Put {
    pub port: u32,
    pub packet: u32,
}
