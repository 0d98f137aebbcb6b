//! What the program says of itself: its usage line, its help page and its version.
ghost use Rattle.std.specs.Prelude.{◌≡◌, codes, map, option_map};
ghost use Rattle.command_line.specs.Pages.{AskForHelp, AskForVersion, usage_text, version_text};

/// The usage line, with the line's end: what is written where the words are no command line.
pub fn usage_line() -> &'static [u8]
    ensures { result.now ≡ usage_text }
{
    USAGE.as_bytes()
}

/// The version, with the line's end: what `--version` alone asks for.
pub fn version_line() -> &'static [u8]
    ensures { result.now ≡ version_text }
{
    VERSION.as_bytes()
}

/// The help page: what `--help` alone asks for. It has each option with its range, unit and default, the plan's
/// grammar and the exit statuses.
pub fn help_page() -> &'static [u8]
    ensures { result.now ≡ HELP_PAGE.now }
{
    HELP_PAGE.as_bytes()
}

/// The page that the words ask for in place of a run: `--help` alone, or `--version` alone. Other words ask for none.
pub fn page_asked_for(words: &[&str]) -> Option<&'static [u8]>
    ensures help { AskForHelp (map (λ word. word.now) words.now) → option_map (λ page. page.now) result ≡ Some HELP_PAGE.now }
    ensures version { AskForVersion (map (λ word. word.now) words.now) → option_map (λ page. page.now) result ≡ Some version_text }
    ensures other { (AskForHelp (map (λ word. word.now) words.now) → ⊥)
        → (AskForVersion (map (λ word. word.now) words.now) → ⊥) → result ≡ None }
{
    match words {
        [word] => page_named(word),
        _ => None,
    }
}

/// The page that one word asks for.
fn page_named(word: &str) -> Option<&'static [u8]>
    ensures help { word.now ≡ codes "--help" → option_map (λ page. page.now) result ≡ Some HELP_PAGE.now }
    ensures version { word.now ≡ codes "--version" → option_map (λ page. page.now) result ≡ Some version_text }
    ensures other { (word.now ≡ codes "--help" → ⊥) → (word.now ≡ codes "--version" → ⊥) → result ≡ None }
{
    match word {
        "--help" => Some(help_page()),
        "--version" => Some(version_line()),
        _ => None,
    }
}

const USAGE: &str =
    "usage: llapd [--min-block N] [--arenas N] [--sets N] [--executors N] [--io N] [--room N] \
    [--half-life N] [--gen N] [--rows N]\n";

const VERSION: &str = "llapd 0.1.0\n";

/// The text of the help page.
pub const HELP_PAGE: &str = "\
llapd: the data path of a Hive LLAP daemon. Reads a plan from standard input, runs its fragments over the ORC
files of the folder that it runs in, and writes their results to standard output.

usage: llapd [OPTION N]..
       llapd --help
       llapd --version

options, each at most once, as --NAME N or --NAME=N:
  --min-block N   bytes of the cache's smallest block, a power of two, 64 to 65536 (4096)
  --arenas N      arenas of the cache, each of 64 smallest blocks, 1 to 64 (16)
  --sets N        sets of the cache, each of 8 ways, 1 to 4096 (64)
  --executors N   executor threads, 0 to 16 (2)
  --io N          threads that read and decode for them, 0 to 8 (2); without either kind one thread does it all
  --room N        attempts that may wait for an executor, 1 to 1000 (16)
  --half-life N   ticks of the cache's clock after which a use counts half, 0 to 1000000 (1000); with 0 it never does
  --gen N         run the plan of the generated file gen-N-M.orc in place of standard input, 0 to 1000000 (none)
  --rows M        rows of the generated file, 0 to 10000000 (1000)

plan, a fragment a line; words are parted by blanks, and a line that begins with # is skipped:
  line   := NAME scan | NAME \"merge\" NAMES after
  scan   := fold \"from\" FILE tests after
  fold   := \"rows\" COLUMNS | \"count\" | \"sum\" COLUMN | \"group\" COLUMN
  tests  := nothing | \"where\" test { \"and\" test }
  test   := COLUMN OP LITERAL | COLUMN \"is\" \"null\" | COLUMN \"is\" \"not\" \"null\"
  after  := nothing | \"after\" NAMES
  OP     := \"=\" | \"!=\" | \"<\" | \"<=\" | \">\" | \">=\"
  LITERAL is a whole number of 64 bits, true, false or 'a text', in which '' stands for one quote
  NAME, FILE and COLUMN are 1 to 64 of the bytes A-Z a-z 0-9 _ - . (a FILE doesn't begin with .)
  NAMES and COLUMNS are such words with commas between them

exit status:
  0  done
  1  done, and some fragment failed
  2  the words are no command line
  3  the plan has a fault
  4  a write failed
  5  a read of the plan failed
  6  the folder can't be listed
  7  no memory
  8  the folder has more than 4095 files
";
