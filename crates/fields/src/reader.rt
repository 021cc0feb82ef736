// The reader of a record file: the lent bytes and a position in them.
ghost use Rattle.std.specs.Prelude.{◌≡◌, ◌+◌, ◌≤◌, length};
ghost use Rattle.definitions_file.specs.File.{number_at};

#[derive(Clone, Copy)]
pub struct Reader<'a> {
    pub bytes: &'a [u8],
    pub position: usize,
}

// A number that was read, and the position behind it.
#[derive(Clone, Copy)]
pub struct Next {
    pub number: u64,
    pub position: usize,
}

fn number_at(bytes: &[u8], at: usize) -> u64
    requires { at + 8 ≤ length bytes.now }
    ensures { result ≡ number_at at bytes.now }
{
    let mut number = [0u8; 8];
    number.copy_from_slice(&bytes[at..at + 8]);
    u64::from_le_bytes(number)
}

fn next_at(bytes: &[u8], position: usize) -> Next
    requires { position + 8 ≤ length bytes.now }
    ensures { (result.number ≡ number_at position bytes.now) × (result.position ≡ position + 8) }
{
    Next {
        number: number_at(bytes, position),
        position: position + 8,
    }
}

impl<'a> Reader<'a> {
    pub fn new(bytes: &'a [u8], position: usize) -> Reader<'a>
        ensures { (result.bytes ≡ bytes.entry) × (result.position ≡ position) }
    {
        Reader { bytes, position }
    }

    // The number at its position. Afterwards it stands behind that number.
    pub fn next_number(&mut self) -> u64
        requires { self.old.position + 8 ≤ length self.old.bytes.now }
        ensures { (result ≡ number_at self.old.position self.old.bytes.now)
            × (self.new.bytes ≡ self.old.bytes)
            × (self.new.position ≡ self.old.position + 8) }
    {
        let next = next_at(self.bytes, self.position);
        self.position = next.position;
        next.number
    }

    // Where it stands.
    pub fn position(self) -> usize
        ensures { result ≡ self.entry.position }
    {
        self.position
    }
}

// The number at a position, read by a reader that is made there, and where the reader then stands: its callers have a plain slice.
pub fn read_number(bytes: &[u8], position: usize) -> Next
    requires { position + 8 ≤ length bytes.now }
    ensures { (result.number ≡ number_at position bytes.now) × (result.position ≡ position + 8) }
{
    let mut reader = Reader::new(bytes, position);
    let number = reader.next_number();
    let position = reader.position();
    Next { number, position }
}
