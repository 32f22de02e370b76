//! The words of a run.

ghost use Rattle.std.specs.Prelude.{◌≡◌, ◌≤◌, ◌^◌, ◌↔◌, MatchResult, MatchOption, IfOk, None, map, string_bytes};
ghost use Rattle.vd_options.specs.Words.{decimal_from, decimal_of, between, page_size_of, slots_of, with_page, with_bounce, with_iova, with_sectors, with_image, with_pair, with_pairs, nothing_chosen, sizes_of, sizes_of_pairs, path_in, asked_sizes, asked_image, AreNumbers, IsOptions};

use crate::options::Options;
use std::alloc::{AllocError, Global};
use thiserror::Error;
use vd_num::Name;

/// Why words give no options.
#[derive(Clone, Copy, Debug, PartialEq, Eq, Error)]
pub enum WordsError {
    #[error("the words are not those of a run")]
    Usage,
    #[error("out of memory")]
    Memory,
}

/// How large a page is: 4,096 bytes, or 65,536.
#[derive(Clone, Copy, Debug)]
pub enum Page {
    Small,
    Large,
}

impl Page {
    /// Its slots of 4,096 bytes.
    fn slots(self) -> u32
        ensures { result ≡ slots_of self }
    {
        match self {
            Page::Small => 1,
            Page::Large => 16,
        }
    }
}

/// What the pairs of words chose.
#[derive(Clone, Copy, Debug)]
pub struct Chosen {
    pub page: Option<Page>,
    pub bounce: Option<u32>,
    pub iova: Option<u32>,
    pub sectors: Option<u32>,
    pub image: bool,
}

/// The number of decimal digits, if it is at most `hi`.
fn digits(text: &[u8], hi: u32) -> Option<u32>
    requires { hi ≤ 2 ^ 28 }
    ensures { result ≡ between 0 hi (decimal_from 0 text.now) }
{
    let mut n = 0;
    for b in text {
        if !b.is_ascii_digit() {
            return None;
        }
        n = 10 * n + u32::from(*b - b'0');
        if n > hi {
            return None;
        }
    }
    Some(n)
}

/// The decimal number without leading zeros, if it is from `lo` to `hi`.
pub fn number(text: &[u8], lo: u32, hi: u32) -> Option<u32>
    requires { hi ≤ 2 ^ 28 }
    ensures { result ≡ between lo hi (decimal_of text.now) }
{
    match text {
        [] | [b'0', _, ..] => None,
        _ => match digits(text, hi) {
            Some(n) if n >= lo => Some(n),
            _ => None,
        },
    }
}

/// The page of so many bytes.
fn page_named(text: &[u8]) -> Option<Page>
    ensures { result ≡ page_size_of text.now }
{
    if text == b"4096".as_slice() {
        Some(Page::Small)
    } else if text == b"65536".as_slice() {
        Some(Page::Large)
    } else {
        None
    }
}

/// What is chosen by one pair of words more.
fn add_pair(chosen: &Chosen, flag: &[u8], value: &[u8]) -> Option<Chosen>
    ensures { result ≡ with_pair chosen.now flag.now value.now }
{
    if flag == b"--page".as_slice() {
        add_page(chosen, page_named(value))
    } else if flag == b"--bounce-pages".as_slice() {
        add_bounce(chosen, number(value, 2, 16384))
    } else if flag == b"--iova-pages".as_slice() {
        add_iova(chosen, number(value, 0, 65536))
    } else if flag == b"--sectors".as_slice() {
        add_sectors(chosen, number(value, 0, 131_072))
    } else if flag == b"--image".as_slice() {
        add_image(chosen, value)
    } else {
        None
    }
}

fn add_page(chosen: &Chosen, page: Option<Page>) -> Option<Chosen>
    ensures { result ≡ with_page chosen.now page }
{
    match (chosen.page, page) {
        (None, Some(page)) => Some(Chosen {
            page: Some(page),
            ..*chosen
        }),
        _ => None,
    }
}

fn add_bounce(chosen: &Chosen, slots: Option<u32>) -> Option<Chosen>
    ensures { result ≡ with_bounce chosen.now slots }
{
    match (chosen.bounce, slots) {
        (None, Some(n)) => Some(Chosen {
            bounce: Some(n),
            ..*chosen
        }),
        _ => None,
    }
}

fn add_iova(chosen: &Chosen, slots: Option<u32>) -> Option<Chosen>
    ensures { result ≡ with_iova chosen.now slots }
{
    match (chosen.iova, slots) {
        (None, Some(n)) => Some(Chosen {
            iova: Some(n),
            ..*chosen
        }),
        _ => None,
    }
}

fn add_sectors(chosen: &Chosen, sectors: Option<u32>) -> Option<Chosen>
    ensures { result ≡ with_sectors chosen.now sectors }
{
    match (chosen.sectors, chosen.image, sectors) {
        (None, false, Some(n)) => Some(Chosen {
            sectors: Some(n),
            ..*chosen
        }),
        _ => None,
    }
}

fn add_image(chosen: &Chosen, path: &[u8]) -> Option<Chosen>
    ensures { result ≡ with_image chosen.now path.now }
{
    if chosen.sectors.is_some() || chosen.image || path.is_empty() {
        return None;
    }
    Some(Chosen {
        image: true,
        ..*chosen
    })
}

/// What pairs of words choose.
fn read_pairs(words: &[String]) -> Option<Chosen>
    ensures { result ≡ with_pairs nothing_chosen (map string_bytes words.now) }
{
    let mut chosen = Chosen {
        page: None,
        bounce: None,
        iova: None,
        sectors: None,
        image: false,
    };
    let mut rest = words;
    while !rest.is_empty() {
        if rest.len() < 2 {
            return None;
        }
        match add_pair(&chosen, rest[0].as_bytes(), rest[1].as_bytes()) {
            None => return None,
            Some(more) => chosen = more,
        }
        rest = &rest[2..];
    }
    Some(chosen)
}

/// The path in pairs of words, if one names it.
fn read_path(alloc: Global, words: &[String]) -> Result<Option<Name>, AllocError>
    ensures { IfOk result (λ path. path ≡ path_in (map string_bytes words.now)) }
{
    let mut rest = words;
    while rest.len() >= 2 {
        if rest[0].as_bytes() == b"--image".as_slice() {
            let path = rest[1].as_bytes().to_vec(alloc)?;
            return Ok(Some(Name::from_vec(path)));
        }
        rest = &rest[2..];
    }
    Ok(None)
}

/// The options of what was chosen, without a path, if bounce memory has whole pages, two at least,
/// and there is more I/O memory.
fn numbers_of(chosen: &Chosen) -> Option<Options>
    ensures { MatchOption result (sizes_of chosen.now ≡ None) (λ o. AreNumbers o (sizes_of chosen.now)) }
{
    let bounce_pages = chosen.bounce.unwrap_or(16384);
    let iova_pages = chosen.iova.unwrap_or(32768);
    let per_page = chosen.page.unwrap_or(Page::Small).slots();
    if bounce_pages < 2 * per_page || bounce_pages % per_page != 0 {
        return None;
    }
    if bounce_pages >= iova_pages || iova_pages > 65536 {
        return None;
    }
    Some(Options {
        page: 4096 * per_page,
        bounce_pages,
        iova_pages,
        sectors: u64::from(chosen.sectors.unwrap_or(2048)),
        image: None,
    })
}

/// Reads the pairs of words that follow the first words of a run, as `read_words`, but for the path of an image, so that
/// it takes no memory: `image` is `None`.
pub fn read_sizes(pairs: &[String]) -> Option<Options>
    ensures { MatchOption result (sizes_of_pairs (map string_bytes pairs.now) ≡ None)
        (λ o. AreNumbers o (sizes_of_pairs (map string_bytes pairs.now))) }
{
    numbers_of(&read_pairs(pairs)?)
}

/// Reads the words of a run as `read_words`, but for the path of an image, so that it takes no
/// memory: `image` is `None`.
pub fn read_numbers(words: &Vec<String>) -> Result<Options, WordsError>
    ensures { MatchResult result
        (λ o. AreNumbers o (asked_sizes (map string_bytes words.now.items)))
        (λ e. (e ≡ WordsError.Usage) × (asked_sizes (map string_bytes words.now.items) ≡ None)) }
{
    let words = words.as_slice();
    if words.is_empty() || words[0].as_bytes() != b"run".as_slice() {
        return Err(WordsError::Usage);
    }
    match read_sizes(&words[1..]) {
        None => Err(WordsError::Usage),
        Some(options) => Ok(options),
    }
}

/// Reads the words of a run: `run`, and then any of these pairs, in any order, each at most once.
///
/// - `--page P`: 4,096 or 65,536 bytes, else 4,096.
/// - `--bounce-pages N`: slots of 4,096 bytes, 2 to 16,384, else 16,384; whole pages, two at least.
/// - `--iova-pages N`: above the slots of bounce memory and at most 65,536, else 32,768.
/// - `--sectors N`: 0 to 131,072, else 2,048.
/// - `--image PATH`: not empty, and not together with `--sectors`.
///
/// P and N are decimal without leading zeros. It takes memory for the path alone, once the words are
/// known to be those of a run.
pub fn read_words(alloc: Global, words: &Vec<String>) -> Result<Options, WordsError>
    ensures { MatchResult result
        (λ o. IsOptions o (asked_sizes (map string_bytes words.now.items))
        (asked_image (map string_bytes words.now.items)))
        (λ e. (e ≡ WordsError.Usage) ↔ (asked_sizes (map string_bytes words.now.items) ≡ None)) }
{
    let numbers = match read_numbers(words) {
        Err(_) => return Err(WordsError::Usage),
        Ok(numbers) => numbers,
    };
    match read_path(alloc, &words.as_slice()[1..]) {
        Err(AllocError) => Err(WordsError::Memory),
        Ok(image) => Ok(Options { image, ..numbers }),
    }
}
