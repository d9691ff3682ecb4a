//! Tests of the drive, the words, and the jobs of the program. Nothing else stands here.
#![tactic(auto)]

#[cfg(test)]
mod drive_words;
#[cfg(test)]
mod drives;
#[cfg(test)]
mod expect;
#[cfg(test)]
mod feeding;
#[cfg(test)]
mod filling;
#[cfg(test)]
mod jobs;
#[cfg(test)]
mod making;
#[cfg(test)]
mod noted;
#[cfg(test)]
mod program;
#[cfg(test)]
mod ranges;
#[cfg(test)]
mod scheduled;
#[cfg(test)]
mod second_format;
#[cfg(test)]
mod sessions;
#[cfg(test)]
mod small_disk;
#[cfg(test)]
mod stops;
#[cfg(test)]
mod texts;
#[cfg(test)]
mod told;
#[cfg(test)]
mod words;
