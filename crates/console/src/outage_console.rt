// Input and output around trying an outage.
use definitions_file::LONGEST_OUTAGE;
use std::io::Read;

fn print_outage(rt: &(impl Print + Eprint), bytes: &[u8], text: &mut [u8]) {
    let end = outage::file_outage::try_outage(bytes, text);
    crate::print(rt, &text[..end]);
}

// Lent as an array, so that nothing has to be shown of its length, which is that of the longest text.
fn print_with(rt: &(impl Print + Eprint), bytes: &[u8], text: &mut [u8; LONGEST_OUTAGE]) {
    print_outage(rt, bytes, text);
}

// Reads a record file and its tail. Nothing is printed before all of the input is read and tried.
pub fn try_from(rt: &(impl Print + Eprint), reader: &mut impl Read) {
    let mut bytes = crate::input();
    let n = crate::read_full(reader, &mut bytes);
    let mut text = [0u8; LONGEST_OUTAGE];
    print_with(rt, &bytes[..n], &mut text);
}
