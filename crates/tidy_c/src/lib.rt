// `tidy` for a host in C (include/tidy.h), as a static library.

#![tactic(auto)]

ghost use Rattle.tidy.specs.Tidy.{Tidied};

// Reads the program `text` and prints it to `out`. Answers how many bytes were written, or a refusal's number times 2^32 plus its place.
#[unsafe(no_mangle)]
pub extern "C" fn tidy(text: &[u8], out: &mut [u8]) -> u64
    ensures { Tidied text.now out.old result out.new }
{
    tidy::tidy(text, out)
}
