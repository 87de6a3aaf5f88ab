// Reads the bytes of a set of limits from standard input and prints its table, or one line for a refusal.
// What is printed is `printing::print_input`'s, which asks for buffers of these sizes; here it is only read and written.
// Of a read or a write that fails it says nothing: the bytes read before are the whole input, and the rest of the text is lost.
#![tactic(auto)]

fn main(rt: HostRuntime) {
    let mut input = [0u8; 65];
    let mut work = [0u16; 8192];
    let mut table = [0u8; 8199];
    let mut text = [0u8; printing::LONGEST_TEXT];
    // 0 is standard input
    let size = io::read_full(0, &mut input);
    let length = printing::print_input(&input, size, &mut work, &mut table, &mut text);
    let _ = rt.write_all(&text[..length]);
}
