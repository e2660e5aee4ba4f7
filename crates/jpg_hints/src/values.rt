//! Which values switches take.

// The beginning of a switch, for a command by its first letter, and what may follow it. The first one that a word begins
// with counts, so a longer beginning stands before its own beginning.
static VALUES: [(&str, &str, &str); 16] = [
    ("j", "ro", "write -rotate 90, 180 or 270, clockwise"),
    ("j", "f", "write -flip horizontal or -flip vertical"),
    (
        "j",
        "co",
        "write -copy none, -copy comments or -copy all, which keeps profiles and Exif too",
    ),
    (
        "j",
        "cr",
        "write -crop WxH+X+Y with four whole numbers, such as 640x480+0+0",
    ),
    (
        "j",
        "c",
        "write -copy none, -copy comments or -copy all, which keeps profiles and Exif too",
    ),
    (
        "c",
        "q",
        "write -quality with a whole number from 0 to 100, or -qtables with the name of a file",
    ),
    (
        "c",
        "sa",
        "write -sample HxV, or more of them with commas between, with digits from 1 to 4, such as 2x2",
    ),
    (
        "dc",
        "dc",
        "leave it out: int, the exact arithmetic, is what is done",
    ),
    (
        "d",
        "s",
        "the size can't be changed here: write a PNM, and scale it with pamscale or ImageMagick",
    ),
    ("d", "p", "write -preview with a number of scans from 1 on"),
    ("jc", "h", "write -huffman plain or -huffman fitted"),
    (
        "jc",
        "r",
        "write -restart N for N rows of MCUs, or NB for N MCUs, at most 65535; 0 is none",
    ),
    (
        "jc",
        "s",
        "write -scans with the name of a file, a script of scans",
    ),
    ("jdc", "o", "write -outfile with the name of the output"),
    (
        "w",
        "cf",
        "write -cfile with the name of a file, the comment",
    ),
    (
        "w",
        "c",
        "write -comment with a text, in quotation marks if it has spaces",
    ),
];

fn begins(word: &[u8], start: &[u8]) -> bool {
    match word.split_at_checked(start.len()) {
        Some((front, _)) => front.eq_ignore_ascii_case(start),
        None => false,
    }
}

/// Which values this switch of a command takes.
pub fn value_of(tool: &str, switch: &str) -> &'static str {
    let (Some(first), Some(letters)) = (tool.as_bytes().first(), switch.as_bytes().get(1..)) else {
        return "it takes another value";
    };
    for (tools, start, text) in &VALUES {
        if tools.as_bytes().contains(first) && begins(letters, start.as_bytes()) {
            return text;
        }
    }
    "it takes another value"
}
