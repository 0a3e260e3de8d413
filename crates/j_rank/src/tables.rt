// The frames and the cells of all ranks from `_`, 0, 1, 2 and _1, for arguments of the shapes (), (3), (2 3), (2 3 4), (0), (0 3) and (3 0), in this order. The tables were worked out from what is said of cells in words, by hand and by a program that shares nothing with the definitions.
ghost use Rattle.std.specs.Prelude.{◌≡◌};
ghost use Rattle.j_noun.specs.declared.ranks.Rank.TheVariants.{Infinite as InfiniteRank};
ghost use Rattle.j_rank.specs.Rows.{rank, minus_rank};
ghost use Rattle.j_rank.specs.Tables.{row, s, s0, s2, s3, s4, s03, s23, s30, s34, s234, f, f0, f2, f3, f03, f23, f30, f234, no, frames, cells, cells_of_fills, agreed};

/// Laws: the frame that each rank leaves, and the shape of each cell, of fills too.
pub fn frame_tables()
    ensures whole_frames { frames InfiniteRank ≡ row f f f f f f f }
    ensures whole_cells { cells InfiniteRank ≡ row s s3 s23 s234 s0 s03 s30 }
    ensures whole_fills { cells_of_fills InfiniteRank ≡ row s s3 s23 s234 s0 s03 s30 }
    ensures zero_frames { frames (rank 0) ≡ row f f3 f23 f234 f0 f03 f30 }
    ensures zero_cells { cells (rank 0) ≡ row s s s s s s s }
    ensures zero_fills { cells_of_fills (rank 0) ≡ row s s s s s s s }
    ensures one_frames { frames (rank 1) ≡ row f f f2 f23 f f0 f3 }
    ensures one_cells { cells (rank 1) ≡ row s s3 s3 s4 s0 s3 s0 }
    ensures one_fills { cells_of_fills (rank 1) ≡ row s s3 s3 s4 s0 s3 s0 }
    ensures two_frames { frames (rank 2) ≡ row f f f f2 f f f }
    ensures two_cells { cells (rank 2) ≡ row s s3 s23 s34 s0 s03 s30 }
    ensures two_fills { cells_of_fills (rank 2) ≡ row s s3 s23 s34 s0 s03 s30 }
    ensures items_frames { frames (minus_rank 1) ≡ row f f3 f2 f2 f0 f0 f3 }
    ensures items_cells { cells (minus_rank 1) ≡ row s s s3 s34 s s3 s0 }
    ensures items_fills { cells_of_fills (minus_rank 1) ≡ row s s s3 s34 s s3 s0 }
{}

/// Laws: the frames that an infinite left rank agrees with, a row for each left shape, and a column for each right one.
pub fn whole_left()
    ensures whole { agreed InfiniteRank InfiniteRank ≡ row
        (row f f f f f f f)
        (row f f f f f f f)
        (row f f f f f f f)
        (row f f f f f f f)
        (row f f f f f f f)
        (row f f f f f f f)
        (row f f f f f f f) }
    ensures zero { agreed InfiniteRank (rank 0) ≡ row
        (row f f3 f23 f234 f0 f03 f30)
        (row f f3 f23 f234 f0 f03 f30)
        (row f f3 f23 f234 f0 f03 f30)
        (row f f3 f23 f234 f0 f03 f30)
        (row f f3 f23 f234 f0 f03 f30)
        (row f f3 f23 f234 f0 f03 f30)
        (row f f3 f23 f234 f0 f03 f30) }
    ensures one { agreed InfiniteRank (rank 1) ≡ row
        (row f f f2 f23 f f0 f3)
        (row f f f2 f23 f f0 f3)
        (row f f f2 f23 f f0 f3)
        (row f f f2 f23 f f0 f3)
        (row f f f2 f23 f f0 f3)
        (row f f f2 f23 f f0 f3)
        (row f f f2 f23 f f0 f3) }
    ensures two { agreed InfiniteRank (rank 2) ≡ row
        (row f f f f2 f f f)
        (row f f f f2 f f f)
        (row f f f f2 f f f)
        (row f f f f2 f f f)
        (row f f f f2 f f f)
        (row f f f f2 f f f)
        (row f f f f2 f f f) }
    ensures items { agreed InfiniteRank (minus_rank 1) ≡ row
        (row f f3 f2 f2 f0 f0 f3)
        (row f f3 f2 f2 f0 f0 f3)
        (row f f3 f2 f2 f0 f0 f3)
        (row f f3 f2 f2 f0 f0 f3)
        (row f f3 f2 f2 f0 f0 f3)
        (row f f3 f2 f2 f0 f0 f3)
        (row f f3 f2 f2 f0 f0 f3) }
{}

/// Laws: the frames that a left rank of 0 agrees with, a row for each left shape, and a column for each right one.
pub fn zero_left()
    ensures whole { agreed (rank 0) InfiniteRank ≡ row
        (row f f f f f f f)
        (row f3 f3 f3 f3 f3 f3 f3)
        (row f23 f23 f23 f23 f23 f23 f23)
        (row f234 f234 f234 f234 f234 f234 f234)
        (row f0 f0 f0 f0 f0 f0 f0)
        (row f03 f03 f03 f03 f03 f03 f03)
        (row f30 f30 f30 f30 f30 f30 f30) }
    ensures zero { agreed (rank 0) (rank 0) ≡ row
        (row f f3 f23 f234 f0 f03 f30)
        (row f3 f3 no no no no f30)
        (row f23 no f23 f234 no no no)
        (row f234 no f234 f234 no no no)
        (row f0 no no no f0 f03 no)
        (row f03 no no no f03 f03 no)
        (row f30 f30 no no no no f30) }
    ensures one { agreed (rank 0) (rank 1) ≡ row
        (row f f f2 f23 f f0 f3)
        (row f3 f3 no no f3 no f3)
        (row f23 f23 f23 f23 f23 no no)
        (row f234 f234 f234 f234 f234 no no)
        (row f0 f0 no no f0 f0 no)
        (row f03 f03 no no f03 f03 no)
        (row f30 f30 no no f30 no f30) }
    ensures two { agreed (rank 0) (rank 2) ≡ row
        (row f f f f2 f f f)
        (row f3 f3 f3 no f3 f3 f3)
        (row f23 f23 f23 f23 f23 f23 f23)
        (row f234 f234 f234 f234 f234 f234 f234)
        (row f0 f0 f0 no f0 f0 f0)
        (row f03 f03 f03 no f03 f03 f03)
        (row f30 f30 f30 no f30 f30 f30) }
    ensures items { agreed (rank 0) (minus_rank 1) ≡ row
        (row f f3 f2 f2 f0 f0 f3)
        (row f3 f3 no no no no f3)
        (row f23 no f23 f23 no no no)
        (row f234 no f234 f234 no no no)
        (row f0 no no no f0 f0 no)
        (row f03 no no no f03 f03 no)
        (row f30 f30 no no no no f30) }
{}

/// Laws: the frames that a left rank of 1 agrees with, a row for each left shape, and a column for each right one.
pub fn one_left()
    ensures whole { agreed (rank 1) InfiniteRank ≡ row
        (row f f f f f f f)
        (row f f f f f f f)
        (row f2 f2 f2 f2 f2 f2 f2)
        (row f23 f23 f23 f23 f23 f23 f23)
        (row f f f f f f f)
        (row f0 f0 f0 f0 f0 f0 f0)
        (row f3 f3 f3 f3 f3 f3 f3) }
    ensures zero { agreed (rank 1) (rank 0) ≡ row
        (row f f3 f23 f234 f0 f03 f30)
        (row f f3 f23 f234 f0 f03 f30)
        (row f2 no f23 f234 no no no)
        (row f23 no f23 f234 no no no)
        (row f f3 f23 f234 f0 f03 f30)
        (row f0 no no no f0 f03 no)
        (row f3 f3 no no no no f30) }
    ensures one { agreed (rank 1) (rank 1) ≡ row
        (row f f f2 f23 f f0 f3)
        (row f f f2 f23 f f0 f3)
        (row f2 f2 f2 f23 f2 no no)
        (row f23 f23 f23 f23 f23 no no)
        (row f f f2 f23 f f0 f3)
        (row f0 f0 no no f0 f0 no)
        (row f3 f3 no no f3 no f3) }
    ensures two { agreed (rank 1) (rank 2) ≡ row
        (row f f f f2 f f f)
        (row f f f f2 f f f)
        (row f2 f2 f2 f2 f2 f2 f2)
        (row f23 f23 f23 f23 f23 f23 f23)
        (row f f f f2 f f f)
        (row f0 f0 f0 no f0 f0 f0)
        (row f3 f3 f3 no f3 f3 f3) }
    ensures items { agreed (rank 1) (minus_rank 1) ≡ row
        (row f f3 f2 f2 f0 f0 f3)
        (row f f3 f2 f2 f0 f0 f3)
        (row f2 no f2 f2 no no no)
        (row f23 no f23 f23 no no no)
        (row f f3 f2 f2 f0 f0 f3)
        (row f0 no no no f0 f0 no)
        (row f3 f3 no no no no f3) }
{}

/// Laws: the frames that a left rank of 2 agrees with, a row for each left shape, and a column for each right one.
pub fn two_left()
    ensures whole { agreed (rank 2) InfiniteRank ≡ row
        (row f f f f f f f)
        (row f f f f f f f)
        (row f f f f f f f)
        (row f2 f2 f2 f2 f2 f2 f2)
        (row f f f f f f f)
        (row f f f f f f f)
        (row f f f f f f f) }
    ensures zero { agreed (rank 2) (rank 0) ≡ row
        (row f f3 f23 f234 f0 f03 f30)
        (row f f3 f23 f234 f0 f03 f30)
        (row f f3 f23 f234 f0 f03 f30)
        (row f2 no f23 f234 no no no)
        (row f f3 f23 f234 f0 f03 f30)
        (row f f3 f23 f234 f0 f03 f30)
        (row f f3 f23 f234 f0 f03 f30) }
    ensures one { agreed (rank 2) (rank 1) ≡ row
        (row f f f2 f23 f f0 f3)
        (row f f f2 f23 f f0 f3)
        (row f f f2 f23 f f0 f3)
        (row f2 f2 f2 f23 f2 no no)
        (row f f f2 f23 f f0 f3)
        (row f f f2 f23 f f0 f3)
        (row f f f2 f23 f f0 f3) }
    ensures two { agreed (rank 2) (rank 2) ≡ row
        (row f f f f2 f f f)
        (row f f f f2 f f f)
        (row f f f f2 f f f)
        (row f2 f2 f2 f2 f2 f2 f2)
        (row f f f f2 f f f)
        (row f f f f2 f f f)
        (row f f f f2 f f f) }
    ensures items { agreed (rank 2) (minus_rank 1) ≡ row
        (row f f3 f2 f2 f0 f0 f3)
        (row f f3 f2 f2 f0 f0 f3)
        (row f f3 f2 f2 f0 f0 f3)
        (row f2 no f2 f2 no no no)
        (row f f3 f2 f2 f0 f0 f3)
        (row f f3 f2 f2 f0 f0 f3)
        (row f f3 f2 f2 f0 f0 f3) }
{}

/// Laws: the frames that a left rank of _1 agrees with, a row for each left shape, and a column for each right one.
pub fn items_left()
    ensures whole { agreed (minus_rank 1) InfiniteRank ≡ row
        (row f f f f f f f)
        (row f3 f3 f3 f3 f3 f3 f3)
        (row f2 f2 f2 f2 f2 f2 f2)
        (row f2 f2 f2 f2 f2 f2 f2)
        (row f0 f0 f0 f0 f0 f0 f0)
        (row f0 f0 f0 f0 f0 f0 f0)
        (row f3 f3 f3 f3 f3 f3 f3) }
    ensures zero { agreed (minus_rank 1) (rank 0) ≡ row
        (row f f3 f23 f234 f0 f03 f30)
        (row f3 f3 no no no no f30)
        (row f2 no f23 f234 no no no)
        (row f2 no f23 f234 no no no)
        (row f0 no no no f0 f03 no)
        (row f0 no no no f0 f03 no)
        (row f3 f3 no no no no f30) }
    ensures one { agreed (minus_rank 1) (rank 1) ≡ row
        (row f f f2 f23 f f0 f3)
        (row f3 f3 no no f3 no f3)
        (row f2 f2 f2 f23 f2 no no)
        (row f2 f2 f2 f23 f2 no no)
        (row f0 f0 no no f0 f0 no)
        (row f0 f0 no no f0 f0 no)
        (row f3 f3 no no f3 no f3) }
    ensures two { agreed (minus_rank 1) (rank 2) ≡ row
        (row f f f f2 f f f)
        (row f3 f3 f3 no f3 f3 f3)
        (row f2 f2 f2 f2 f2 f2 f2)
        (row f2 f2 f2 f2 f2 f2 f2)
        (row f0 f0 f0 no f0 f0 f0)
        (row f0 f0 f0 no f0 f0 f0)
        (row f3 f3 f3 no f3 f3 f3) }
    ensures items { agreed (minus_rank 1) (minus_rank 1) ≡ row
        (row f f3 f2 f2 f0 f0 f3)
        (row f3 f3 no no no no f3)
        (row f2 no f2 f2 no no no)
        (row f2 no f2 f2 no no no)
        (row f0 no no no f0 f0 no)
        (row f0 no no no f0 f0 no)
        (row f3 f3 no no no no f3) }
{}
