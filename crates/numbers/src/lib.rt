// UID, TID and FID numbers: whether a UID is in use, and the smallest number that is free (document 01, "Tables and room").
#![tactic(auto)]

pub mod column_words;
pub mod number;
