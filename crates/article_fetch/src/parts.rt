//! What an overview line is made of.
ghost use Rattle.std.specs.Prelude.{◌≡◌, ◌+◌, ◌≤◌, length};

/// What an overview line is made of: the contents of fields, empty where there is none, the octets
/// of the whole article and those of its body.
#[derive(Clone, Copy)]
pub(crate) struct Parts<'a> {
    pub(crate) subject: &'a [u8],
    pub(crate) from: &'a [u8],
    pub(crate) date: &'a [u8],
    pub(crate) id: &'a [u8],
    pub(crate) references: &'a [u8],
    pub(crate) octets: usize,
    pub(crate) body: &'a [u8],
    ghost is_within: { length body.now ≤ octets },
}

impl Parts<'_> {
    /// The octets of the header, the empty line included.
    pub(crate) fn header_octets(&self) -> usize
        ensures { result + length self.now.body.now ≡ self.now.octets }
    {
        self.octets - self.body.len()
    }
}
