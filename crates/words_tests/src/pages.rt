//! The caller on the page of `words_core`: `tests/documents` compares it with the page.
mod followed_words;

use followed_words::follows_files;

#[test]
fn sees_what_follows(rt: HostRuntime) {
    let words: [&str; 3] = ["tail", "-f", "log"];
    let follows = follows_files(rt.alloc(), &words);
    assert_eq!(rt; follows, Ok(true));
}
