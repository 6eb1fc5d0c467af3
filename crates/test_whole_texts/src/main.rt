// Prints one whole text from standard input at once, through the library function whose contract is document 01's print of a text. The program `adjust` takes the same text chunk by
// chunk; the tests compare the two. specs/Document01.antt proves what is printed for document 01's own lines, which are this program's stdin.
#![tactic(auto)]

// The longest text that is taken; what it may print.
const TEXT_ROOM: usize = 8192;

const OUT_ROOM: usize = printing::LINE_ROOM * TEXT_ROOM + night_print::END_ROOM;

// One byte more than the longest text, by which a longer one is told.
fn text_room() -> [u8; TEXT_ROOM + 1] {
    [0; TEXT_ROOM + 1]
}

fn out_room() -> [u8; OUT_ROOM] {
    [0; OUT_ROOM]
}

// Prints the text.
fn show(text: &[u8], out: &mut [u8]) {
    if let Some(n) = night_print::print_text(text, out) {
        io::write_all(1, &out[..n]);
    } else {
        io::write_all(
            2,
            b"test_whole_texts: the text is longer than 8,192 bytes\n",
        );
    }
}

fn main() {
    let mut text = text_room();
    let mut out = out_room();
    let n = io::read_full(0, &mut text);
    show(&text[..n], &mut out);
}
