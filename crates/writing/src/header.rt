// What a tuple's header says beside the size of the body.

// Type and ID are no struct of a head: records, rows and headers lay them out each in its own order.
#[derive(Clone, Copy, Debug, PartialEq, Eq)]
pub struct Header {
    pub source_type: u16,
    pub source_id: u16,
    pub data_type: u16,
    pub time: u32,
}
