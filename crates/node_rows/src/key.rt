//! Keys of the rows' map: a node's page as a big-endian u32, followed by a word's number as a big-endian u64.
ghost use Rattle.std.specs.Prelude.{◌≡◌};
ghost use Rattle.page_face.specs.Number.{number as number_of_bytes};
ghost use Rattle.node_rows.specs.Rows.{key_of};

/// The key of a row.
#[derive(Clone, Copy)]
pub struct RowKey {
    /// The node's page.
    pub node: u32,
    /// The word's number.
    pub number: u64,
}

impl RowKey {
    /// Returns the bytes of the key. They are ordered by node, and within a node by number.
    pub fn bytes(self) -> [u8; 12]
        ensures { number_of_bytes result ≡ key_of self.node self.number }
    {
        let [a, b, c, d] = self.node.to_be_bytes();
        let [e, f, g, h, i, j, k, l] = self.number.to_be_bytes();
        [a, b, c, d, e, f, g, h, i, j, k, l]
    }

    /// Returns the key of these bytes.
    pub fn of_bytes(bytes: &[u8; 12]) -> RowKey
        ensures { number_of_bytes bytes.now ≡ key_of result.node result.number }
    {
        let [a, b, c, d, e, f, g, h, i, j, k, l] = *bytes;
        RowKey {
            node: u32::from_be_bytes([a, b, c, d]),
            number: u64::from_be_bytes([e, f, g, h, i, j, k, l]),
        }
    }
}
