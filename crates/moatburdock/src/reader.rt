// What C calls to read a day file in parts: each export hands on to `c_reader` and states its clauses again.
ghost use Rattle.std.specs.Prelude.{◌≡◌};
ghost use Rattle.steps.specs.Machine.{fresh_reader};
ghost use Rattle.c_reader.specs.Words.{reader_words};
ghost use Rattle.c_reader.specs.Calls.{step_leaves};

// Opens a reader: that of a file of which nothing is read.
#[unsafe(no_mangle)]
pub extern "C" fn moatburdock_open_reader(reader: &mut [u32; 336])
    ensures { reader.new ≡ reader_words fresh_reader }
{
    c_reader::moatburdock_open_reader(reader);
}

// A step of a reader: `window` holds the bytes of the file that are not used up yet, as many as there are at hand, and `ended` says that the file ends
// with them. Answers what came, and gives how many bytes are used up, the numbers of what came, and its line.
#[unsafe(no_mangle)]
pub extern "C" fn moatburdock_read_step(
    reader: &mut [u32; 336],
    window: &[u8],
    ended: bool,
    used: &mut usize,
    numbers: &mut [u32; 8],
    line: &mut [u8; 64],
    size: &mut usize,
) -> u8
    ensures { record {
      answer = result;
      lent = record {
        reader = reader.new;
        used = used.new;
        numbers = numbers.new;
        line = line.new;
        size = size.new;
      };
    }
        ≡ step_leaves
        reader.old line.old window.now ended }
{
    c_reader::moatburdock_read_step(reader, window, ended, used, numbers, line, size)
}
