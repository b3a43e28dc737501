//! A base and a tower as extractors.
ghost use Rattle.extractors.specs.Piles.Pile.{bare};
ghost use Rattle.towers.specs.Towers.{base_bits, pile_of};
ghost use Rattle.towers.specs.TowersEven.{base_even, tower_even};

use crate::tower::{Base, Tower};
use blum::layer::Blum;
use extractors::fault::ExtractorFault;
use extractors::interface::SymbolExtractor;
use extractors::no_bits::NoBits;
use extractors::pairs::Pairs;
use peres::layer::Peres;
use ranking::coin::CoinRanking;
use ranking::symbol::SymbolRanking;
use split::layer::Split;
use std::alloc::Global;

impl SymbolExtractor for Base {
    ghost pile = { λ b. bare (base_bits b) };

    ghost lawful = { λ b. base_even b };

    fn extract(
        &self,
        heap: Global,
        size: u8,
        recording: &[u8],
        tray: &mut [u8],
    ) -> Result<usize, ExtractorFault> {
        match self {
            Base::Pairs => Pairs.extract(heap, size, recording, tray),
            Base::Ranking => {
                let ranking = SymbolRanking::new(20).unwrap();
                ranking.extract(heap, size, recording, tray)
            }
            Base::Peres => {
                let below = Peres::new(NoBits, 12).unwrap();
                Split { below }.extract(heap, size, recording, tray)
            }
            Base::PeresRanking => {
                let below = Peres::new(CoinRanking::new(60).unwrap(), 4).unwrap();
                Split { below }.extract(heap, size, recording, tray)
            }
            Base::CoinRanking => {
                let below = CoinRanking::new(60).unwrap();
                Split { below }.extract(heap, size, recording, tray)
            }
        }
    }
}

impl SymbolExtractor for Tower {
    ghost pile = { λ t. pile_of t };

    ghost lawful = { λ t. tower_even t };

    fn extract(
        &self,
        heap: Global,
        size: u8,
        recording: &[u8],
        tray: &mut [u8],
    ) -> Result<usize, ExtractorFault> {
        if self.laned {
            Blum { below: self.base }.extract(heap, size, recording, tray)
        } else {
            self.base.extract(heap, size, recording, tray)
        }
    }
}
