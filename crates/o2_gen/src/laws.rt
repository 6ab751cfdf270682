// Laws of the bench's executable.
ghost use Rattle.std.specs.Prelude.{◌≡◌, Ok, length};
ghost use Rattle.o2_image.specs.Modules.{module_of};
ghost use Rattle.o2_image.specs.Records.{bytes_of};
ghost use Rattle.o2_gen.specs.BenchCode.{bench_code, bench_data};
ghost use Rattle.o2_gen.specs.BenchFile.{bench_file};
ghost use Rattle.o2_gen.specs.BenchModule.{bench_module, code_segment, data_segment};

/// The file of the bench is read as the module BENCH: header, segments, names, reference, no entries, and the three imports. Behind
/// its rows the segments have the 105 bytes of the code and the 64 bytes of the data.
pub fn bench_file_is_read()
    ensures reads { module_of bench_file ≡ Ok bench_module }
    ensures code { bytes_of bench_file code_segment ≡ bench_code }
    ensures data { bytes_of bench_file data_segment ≡ bench_data }

    ensures file_size { length bench_file ≡ 384 }
    ensures code_size { length bench_code ≡ 105 }
    ensures data_size { length bench_data ≡ 64 }
{}
