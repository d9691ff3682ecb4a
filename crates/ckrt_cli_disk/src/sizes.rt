//! The sizes that the words ask for, beside those of a disk.
ghost use Rattle.std.specs.Prelude.{◌≡◌, is_err, length, IfOk};
ghost use Rattle.ckrt_disk.specs.Frame.{IsOnlyRead};
ghost use Rattle.ckrt_cli_disk.specs.Sizes.{agrees, config_in, is_asked, other_in, other_sizes};

use ckrt_cli_words::Sizes;
use ckrt_disk::{DeviceFault, Disk};
use ckrt_recovery::Config;
use ckrt_stored::{OPEN, number_32};

/// The bytes of a superblock that have the sizes.
const SUPERBLOCK_BYTES: usize = 32;

/// Whether a size is the one that is asked for, if one is.
fn is_asked(asked: Option<u32>, there: u32) -> bool
    ensures { result ≡ is_asked asked there }
{
    match asked {
        Some(size) => size == there,
        None => true,
    }
}

/// Whether a configuration has the sizes that are asked for.
fn agrees(sizes: &Sizes, config: &Config) -> bool
    ensures { result ≡ agrees sizes.now config.now }
{
    is_asked(sizes.pages, config.pages)
        && is_asked(sizes.harts, config.harts)
        && is_asked(sizes.journal, config.journal)
}

/// The sizes in a superblock.
fn config_in(block: &[u8]) -> Config
    requires { length block.now ≡ 32 }
    ensures { result ≡ config_in block.now }
{
    Config {
        pages: number_32(block, 20),
        harts: number_32(block, 24),
        journal: number_32(block, 28),
    }
}

/// The sizes of a superblock that aren't those that are asked for.
fn other_in(sizes: &Sizes, block: &[u8]) -> Option<Config>
    requires { length block.now ≡ 32 }
    ensures { result ≡ other_in sizes.now block.now }
{
    let config = config_in(block);
    if block[0] == OPEN && config.is_valid() && !agrees(sizes, &config) {
        Some(config)
    } else {
        None
    }
}

/// The sizes of a disk that aren't those that are asked for. The disk is only read.
pub(crate) fn other_sizes<D: Disk>(
    disk: &mut D,
    sizes: &Sizes,
) -> Result<Option<Config>, DeviceFault>
    ensures read { IsOnlyRead D.Disk disk.old disk.new (is_err result) }
    ensures exact { IfOk result
        (λ found. D.is_honest disk.new → found ≡ other_sizes sizes.now (D.content disk.old)) }
{
    if disk.size() < SUPERBLOCK_BYTES {
        return Ok(None);
    }
    let mut block = [0; SUPERBLOCK_BYTES];
    disk.read(0, &mut block)?;
    Ok(other_in(sizes, &block))
}
