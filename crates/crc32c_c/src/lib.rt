// The register and the refreshed checksum for programs in C or Rust. A slice is passed as a pointer and a length.
#![tactic(auto)]

ghost use Rattle.std.specs.Prelude.{◌≡◌};
ghost use Rattle.crc32c.specs.Crc.{register_after};
ghost use Rattle.crc32c_refresh.specs.Refresh.{refreshed};

#[unsafe(no_mangle)]
pub extern "C" fn crc32c_update(register: u32, s: &[u8]) -> u32
    ensures { result ≡ register_after register s.now }
{
    crc32c::update(register, s)
}

#[unsafe(no_mangle)]
pub extern "C" fn crc32c_refresh(checksum: u32, old: u32, new: u32, following: u64) -> u32
    ensures { result ≡ refreshed checksum old new following }
{
    crc32c_refresh::refresh(checksum, old, new, following)
}
