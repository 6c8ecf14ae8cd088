//! Files with one name, and media of them.
use device_config::parse_config;
use edge::{MemFiles, MemStore};
use media::{MakeFault, Media, make_medium};
use scsi_examples::requests::filled;
use std::alloc::Global;
use std::test::Fail;
use tcmu_types::{Bytes, Serials};

/// A medium that a config makes.
pub type ConfigMedium = Media<MemStore>;

/// Files with `img` alone, of so many bytes of zeros, whose store fails at these calls.
pub fn files_with(alloc: Global, size: usize, fails: &[u64]) -> Result<MemFiles, Fail> {
    let zeros = Bytes::from_vec(filled(alloc, 0, size)?);
    let store = MemStore::new(zeros, Serials::from_slice(alloc, fails)?);
    let mut files = MemFiles::new(alloc, Serials::new(alloc));
    files.add(alloc, b"img", store)?;
    Ok(files)
}

/// The medium of a config text over these files, or why none is made of it.
fn make(
    alloc: Global,
    config: &str,
    files: &mut MemFiles,
) -> Result<Result<ConfigMedium, MakeFault>, Fail> {
    let config = parse_config(alloc, config).ok().ok_or("a config")?;
    Ok(make_medium(alloc, &config, files))
}

/// The medium of a config text over these files.
pub fn made(alloc: Global, config: &str, files: &mut MemFiles) -> Result<ConfigMedium, Fail> {
    match make(alloc, config, files)? {
        Ok(medium) => Ok(medium),
        Err(_) => Err(Fail::new("a medium")),
    }
}

/// Why no medium is made of a config text over these files; None where one is.
pub fn fault_of(
    alloc: Global,
    config: &str,
    files: &mut MemFiles,
) -> Result<Option<MakeFault>, Fail> {
    Ok(make(alloc, config, files)?.err())
}
