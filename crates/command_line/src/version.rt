//! The version of the program, and the kit that it is proved with.

/// The version, and the line of the kit, which `--version` prints after the program's name. They are
/// written here alone: the scripts read them from this line.
pub const VERSION: &str = "0.1.0\nproved with rattle-kit-13f logic dac8208d650f15bf";
