//! Worked examples of SCSI: what the definitions give for blocks, pages and requests that engineers know from the standards.
ghost use Rattle.scsi_model.specs.Examples.{ReadOfSix, ReadOfTen, ReadOfSixteen, WriteOfTen, InquiryOfStandard, InquiryOfPage, CodeNotServed, PageWithoutBit, SubpageAsked, ProtectionAsked, StandardData, SupportedPages, UnitSerialNumber, DeviceIdentification, BlockLimits, CapacityOfTen, CapacityTooLarge, CapacityOfSixteen, CachingData, AllModeData, OneUnit, NoWellKnownUnit, SenseOfCode, RefusesCode, RefusesField, RefusesRange, ReadsNothingAtEnd, RefusesBeyondEnd, RefusesWrite, RefusesLengthFirst, CutToAllocation, CutToAsked, TellsCapacity, TwoRanges, HeaderOfTwo};

/// Blocks of each length have their operation, and a code or a field that is not served its fault.
pub fn decoding_examples()
    ensures read_of_six { ReadOfSix }
    ensures read_of_ten { ReadOfTen }
    ensures read_of_sixteen { ReadOfSixteen }
    ensures write_of_ten { WriteOfTen }
    ensures inquiry { InquiryOfStandard }
    ensures inquiry_of_page { InquiryOfPage }
    ensures code_not_served { CodeNotServed }
    ensures page_without_bit { PageWithoutBit }
    ensures subpage { SubpageAsked }
    ensures protection { ProtectionAsked }
{}

/// The data that describe a device have these bytes.
pub fn page_examples()
    ensures standard { StandardData }
    ensures supported { SupportedPages }
    ensures serial_number { UnitSerialNumber }
    ensures identification { DeviceIdentification }
    ensures block_limits { BlockLimits }
    ensures caching { CachingData }
    ensures all_modes { AllModeData }
{}

/// So have capacities, the list of logical units, and sense data.
pub fn number_examples()
    ensures capacity { CapacityOfTen }
    ensures too_large { CapacityTooLarge }
    ensures capacity_of_sixteen { CapacityOfSixteen }
    ensures one_unit { OneUnit }
    ensures no_well_known_unit { NoWellKnownUnit }
    ensures sense { SenseOfCode }
{}

/// A request is refused for the first of its faults, and data are cut to both lengths.
pub fn reply_examples()
    ensures code { RefusesCode }
    ensures field { RefusesField }
    ensures range { RefusesRange }
    ensures at_end { ReadsNothingAtEnd }
    ensures beyond_end { RefusesBeyondEnd }
    ensures protected_write { RefusesWrite }
    ensures length_first { RefusesLengthFirst }
    ensures cut_to_allocation { CutToAllocation }
    ensures cut_to_asked { CutToAsked }
    ensures capacity { TellsCapacity }
{}

/// A list of UNMAP has its ranges, and its header their lengths.
pub fn unmap_examples()
    ensures ranges { TwoRanges }
    ensures header { HeaderOfTwo }
{}
