ghost use Rattle.std.specs.Prelude.{◌≡◌, Option, Some};
ghost use Rattle.outside.specs.Files.{Files, AreFiles};

/// The files of one run.
///
/// No value of it is needed: contracts read its files, where it tells them, and programs pass the type
/// along. Whether files are told is a fact of the world, the same for all stores over it.
pub trait World {
    /// The files, in their order, or none where the world doesn't tell them.
    ghost files: { Option Files };

    /// Told files are at most 4,096, have distinct names, and hold bytes.
    ghost are_files: { (told : Files) → files ≡ Some told → AreFiles told };
}
