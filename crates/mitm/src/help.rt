//! What the program tells people on standard error about its words.
use px_outside::Sink;

const HELP: &str = "\
mitm passes HTTP on, and prints a line for each request that is finished.

  ./mitm serve OPTIONS         runs the proxy by a file of options; an empty one is a proxy at 127.0.0.1:8080
  ./mitm flows FILE FILTER     prints the lines of saved flows on which the filter holds; '~all' holds on each
  ./mitm har FILE FILTER       prints these as one export, which browsers open
  ./mitm convert FILE OUT      writes a file's flows anew at the end of OUT
  ./mitm pick FILE FILTER OUT  writes those of them on which the filter holds there
  ./mitm gen N                 runs N generated flows with no network, 0 to 10000

For a server at port 9000, these lines are a file of options:
  mode = \"reverse:http://127.0.0.1:9000\"
  save_stream_file = \"saved.flows\"
Then ./mitm serve FILE, in another terminal curl http://127.0.0.1:8080/, and then ./mitm flows saved.flows '~c 200'.
docs/options.md has all options and statuses, docs/filters.md the filters, and examples/ files to begin with.
";

const QUOTES: &str =
    "a filter of several words is one word of the shell: ./mitm flows FILE '~m POST & ~c 200'\n";

/// Tells what to write, where the words ask for that or are none; and that a filter is quoted, where more words stand behind a file.
/// These are words without a form.
pub fn tell_help<S: Sink>(words: &[String], notes: &mut S) {
    let text = match words {
        [] => HELP,
        [word] if is_help(word.as_str()) => HELP,
        [word, _, _, _, ..] if word.as_str() == "flows" => QUOTES,
        [word, _, _, _, _, ..] if word.as_str() == "pick" => QUOTES,
        _ => return,
    };
    let _ = notes.write(text.as_bytes());
}

fn is_help(word: &str) -> bool {
    match word {
        "--help" | "-h" | "help" => true,
        _ => false,
    }
}

/// Whether the words are to serve.
pub fn serves(words: &[String]) -> bool {
    match words {
        [word, ..] => word.as_str() == "serve",
        [] => false,
    }
}
