// The archive for the controllers: the two functions of `firmware` as C calls them, each with its contract there. The header is include/siren_firmware.h.
#![tactic(auto)]

ghost use Rattle.std.specs.Prelude.{◌≡◌};
ghost use Rattle.block.specs.Block.{check};
ghost use Rattle.mark.specs.Mark.{mark};

// The check of one lent block: 0 right, 1 not 512 bytes, 2 the check differs.
#[unsafe(no_mangle)]
pub extern "C" fn siren_block_check(block: &[u8]) -> u8
    ensures { result ≡ check block.now }
{
    firmware::siren_block_check(block)
}

// The mark of one site: 1 drill, 0 live, 11 for a site above 63.
#[unsafe(no_mangle)]
pub extern "C" fn siren_site_mark(site: u64, drill: u64, live: u64) -> u8
    ensures { result ≡ mark site drill live }
{
    firmware::siren_site_mark(site, drill, live)
}
