/// A packet that came on a face.
#[derive(Clone, Copy)]
pub struct Arrived<'a, P> {
    pub face: u64,
    /// The moment at which the packet came, in milliseconds since 1970.
    pub moment: u64,
    /// The PIT token in the link packet around the packet, or `None` if there is no token (NDNLPv2,
    /// "PIT Token").
    pub token: Option<&'a [u8]>,
    pub packet: &'a P,
}
