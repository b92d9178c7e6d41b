// The lines that the program prints.

// A case whose answer is another.
pub fn say_differs(number: u64) {
    io::write_all(1, b"case ");
    io::print_decimal(1, number);
    io::write_all(1, b" differs\n");
}

// How many cases there were, and how many of them were different.
pub fn say_sum(cases: u64, different: u64) {
    io::print_decimal(1, cases);
    io::write_all(1, b" cases, ");
    io::print_decimal(1, different);
    io::write_all(1, b" different\n");
}
