/// The most bytes of a name.
pub const NAME_BYTES: usize = 30;

/// The most bytes of a lock argument.
pub const ARGUMENT_BYTES: usize = 255;

/// The most bytes of a field's value, as it stands in a line.
pub const VALUE_BYTES: usize = 150;

/// The most bytes of the key of a business row.
pub const KEY_BYTES: usize = 60;

/// The most bytes of the text of a business row.
pub const TEXT_BYTES: usize = 512;
