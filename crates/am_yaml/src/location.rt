//! Lines and columns.
ghost use Rattle.std.specs.Prelude.{◌≡◌};
ghost use Rattle.am_yaml.specs.Location.{column_behind, line_behind};

/// A line and a column of a text. Both count from 1, the column in bytes.
#[derive(Clone, Copy, PartialEq, Eq)]
pub struct Location {
    pub line: usize,
    pub column: usize,
}

impl Location {
    /// Returns the location behind these bytes of a text, which are its first.
    pub fn behind(bytes: &[u8]) -> Location
        ensures line { result.line ≡ line_behind bytes.now }
        ensures column { result.column ≡ column_behind bytes.now }
    {
        let mut line = 1usize;
        let mut column = 1usize;
        for byte in bytes {
            if *byte == b'\n' {
                line += 1;
                column = 1;
            } else {
                column += 1;
            }
        }
        Location { line, column }
    }
}
