//! The program: its arguments, its input and its output.
use super::day::Day;
use super::stop::Stop;
use book::Book;
use journal::Journal;
use net_sheet::NetSheet;
use std::io::{BufWriter, Read, Write};
use std::str::FromStr;
use std::{env, fs};

#[derive(Clone, Copy)]
enum Keeping {
    Journal,
    Net,
}

impl FromStr for Keeping {
    type Err = Stop;

    fn from_str(name: &str) -> Result<Keeping, Stop> {
        match name {
            "journal" => Ok(Keeping::Journal),
            "net" => Ok(Keeping::Net),
            _ => Err(Stop::NoBook),
        }
    }
}

// The file of that name, or standard input.
fn input(rt: &HostRuntime, path: Option<String>) -> Result<Vec<u8>, Stop> {
    match path {
        Some(path) if path.as_str() != "-" => {
            fs::read(rt, path.as_str()).map_err(|e| Stop::Unread(path, e))
        }
        _ => {
            let mut bytes = Vec::new(rt.alloc());
            rt.stdin().read_to_end(&mut bytes)?;
            Ok(bytes)
        }
    }
}

// The whole input over a new book.
fn keep<B: Book + Drop>(book: B, text: &[u8], out: &mut impl Write) -> Result<(), Stop> {
    let mut day = Day::new(book, out);
    day.take_lines(text)?;
    day.print_owed()
}

// Reads, posts and prints; where it ends early, what came before has been printed.
pub fn run(rt: &HostRuntime) -> Result<(), Stop> {
    let mut args = env::args(rt)?;
    let _program = args.next();
    let path = args.next();
    let keeping = match args.next() {
        Some(name) => name.as_str().parse()?,
        None => Keeping::Net,
    };
    let bytes = input(rt, path)?;
    let mut out = BufWriter::new(rt.alloc(), rt.stdout())?;
    // An arm for each book, and no `dyn`: a ledger holds its book by value, and is generic in it.
    let done = match keeping {
        Keeping::Journal => keep(Journal::new(), bytes.as_slice(), &mut out),
        Keeping::Net => keep(NetSheet::new(), bytes.as_slice(), &mut out),
    };
    out.flush()?;
    done
}
