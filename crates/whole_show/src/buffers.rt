// What is lent to the sender and the joiner, for one show after another.

#[derive(Drop)]
pub struct Buffers {
    // what either puts out
    pub out: [u8; 262144],
    // where the sender's payloads end
    pub ends: [usize; 4096],
    // where the joiner gathers a unit
    pub gather: [u8; 262144],
}

impl Buffers {
    pub fn new() -> Buffers {
        Buffers {
            out: [0; 262144],
            ends: [0; 4096],
            gather: [0; 262144],
        }
    }
}
