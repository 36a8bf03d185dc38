// Writing over a lent text, from its front on.
ghost use Rattle.std.specs.Prelude.{◌≡◌, length};
ghost use Rattle.writing.specs.Steps.{HasRoom, Puts};

#[derive(Drop)]
pub(crate) struct Pen<'a> {
    text: &'a mut [u8],
    // how many bytes are written; the rest of the text alone would not tell what stands before it, of which each contract speaks
    at: usize,
}

impl<'a> Pen<'a> {
    pub(crate) fn new(text: &'a mut [u8]) -> Pen<'a>
        ensures same { result.text.ghost_name ≡ text.entry.ghost_name }
        ensures text { result.text.now ≡ text.old }
        ensures start { result.at ≡ 0 }
    {
        Pen { text, at: 0 }
    }

    pub(crate) fn put(&mut self, bytes: &[u8])
        requires { HasRoom self.old (length bytes.now) }
        ensures { Puts self.old bytes.now self.new }
    {
        let end = self.at + bytes.len();
        self.text[self.at..end].copy_from_slice(bytes);
        self.at = end;
    }

    pub(crate) fn count(&self) -> usize
        ensures { result ≡ self.now.at }
    {
        self.at
    }
}
