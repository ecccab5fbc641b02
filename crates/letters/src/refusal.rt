/// What every refusal of a file or a declaration carries: the layer that refused, the refusal's number, and where.
// Layer and number are numbers here, since they are what is printed; the faults themselves are enums.
#[derive(Clone, Copy, PartialEq, Eq, Debug)]
pub struct Report {
    pub layer: u8,
    pub number: u8,
    pub offset: usize,
}
