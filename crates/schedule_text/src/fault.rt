/// Why nothing was read, with the number of tokens that are left where it shows.
#[derive(Clone, Copy, PartialEq, Eq, Debug)]
pub enum Fault {
    Syntax(usize),
    NoMemory,
}
