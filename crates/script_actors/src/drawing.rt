use enq_base::Num;

/// A number of a stock that a line of the script drew.
#[derive(Clone, Copy, Debug)]
pub struct Drawing {
    pub line: u32,
    pub num: Num,
}
